// The properties that the facility is built for, as theorems over the definition that the commands' contracts cite. There is no code here.

#![tactic(auto)]
