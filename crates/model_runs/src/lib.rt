//! Runs of whole scripts, as theorems that hold by computation: what the definitions of `py_model` say of a script is what was worked
//! out apart from them. No code stands here; the theorems are in `proofs`, written by `tools/run_vectors.py`.
#![tactic(auto)]
