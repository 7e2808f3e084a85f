// What a run is, and the theorem over whole runs: definitions, claims and proofs alone.

#![tactic(auto)]
