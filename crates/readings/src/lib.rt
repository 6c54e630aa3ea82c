// How a stream's bytes are read and answered, as theorems that join the grammar to the run. There is no code here.

#![tactic(auto)]
