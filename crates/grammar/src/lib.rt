// The grammar of lines, written without the reader, and the theorem that the reader takes exactly its lines. There is no code here.

#![tactic(auto)]
