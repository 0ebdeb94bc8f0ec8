// What a question means, and what a register cut into fragments answers: definitions in specs/, laws in proofs/.
// No function stands here, so that every crate can cite the mathematics without its code.
#![tactic(auto)]
