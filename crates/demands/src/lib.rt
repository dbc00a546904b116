// No code: the demands and the inspector's list on one page, proofs/Demands.antt, each sentence beside the statement that says it. The rooms
// traces, closure, frames, lists, worked, held and kinds have the definitions that the statements use, and the proofs; here is what needs several of
// them: that 132 is exact for every chip, and runs that meet the premises of its demands.

#![tactic(auto)]
