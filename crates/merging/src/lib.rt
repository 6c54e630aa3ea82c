// The third property of the facility, as a theorem over the definition that the commands' contracts cite. There is no code here.

#![tactic(auto)]
