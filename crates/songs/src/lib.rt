// Theorems about runs, and no code: a song in pieces (proofs/Cutting.antt), a run beside the core's list (proofs/Joined.antt), and what no run does (proofs/ShutOut.antt).
#![tactic(auto)]
