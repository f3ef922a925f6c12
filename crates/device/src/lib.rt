// The device behind the cable: samples, registers that are got and put, and the register strip.
#![tactic(auto)]

pub mod state;
