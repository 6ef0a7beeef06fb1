// 01's depth machine and the theorem on its runs (demand 3) are definitions and proofs, and there is no code to run: specs/Machine.antt is the machine,
// specs/Safe.antt what is demanded of every configuration of a run, specs/Demand.antt the demand, proofs/Theorem.antt its theorem.

#![tactic(auto)]
