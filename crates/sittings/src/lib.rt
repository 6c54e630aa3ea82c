// A whole sitting at the desk, as theorems that join its lines, its answers and the room for them. There is no code here.

#![tactic(auto)]
