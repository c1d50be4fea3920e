// The C interface of include/readings.h: the calls of `table`, `trie`, `engine` and `sheet`, each answer as a struct of numbers.
#![tactic(auto)]

pub mod calls;
pub mod sheets;
pub mod starts;
pub mod tables;
pub mod words;

// A start's answer in numbers, with the cycle of refusal 12 beside it by value: its states, then zeros; without 12 all zeros.
#[repr(C)]
#[derive(Clone, Copy)]
pub struct StartReply {
    pub answer: capi_numbers::Reply,
    pub cycle: [u16; 256],
}

// What a start gives back, before the run is put into the caller's record.
#[derive(Clone, Copy)]
pub struct Begun {
    pub reply: StartReply,
    pub run: machine::Run,
}
