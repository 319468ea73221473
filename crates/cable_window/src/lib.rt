// The solver as a cable chip shows it: 64 bytes of XDR words, which a host writes one at a time.
#![tactic(auto)]

pub mod window;
