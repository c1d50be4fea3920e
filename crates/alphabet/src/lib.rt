// The alphabet: letters and their code points, and a sheet's characters as they are shown.
#![tactic(auto)]

pub mod letters;
pub mod show;
