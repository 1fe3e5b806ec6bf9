//! Tests of `dscript_eval_direct`: that the fast path gives values. Where it gives none, evaluation goes its usual
//! way with the same result, so that no build shows it.
#![tactic(auto)]

#[cfg(test)]
mod tests;
