// Edits of a program: one step is added, dropped, or given another label; judged by the program's edges, and made.
#![tactic(auto)]

pub mod apply;
pub mod judge;
mod key;

// A label is an action, or a call of a routine.
#[derive(Clone, Copy)]
pub enum Label {
    Action(u8),
    Call(u8),
}

#[derive(Clone, Copy)]
pub struct Step {
    pub routine: u8,
    pub source: u8,
    pub label: Label,
    pub target: u8,
}

#[derive(Clone, Copy)]
pub enum Edit {
    Add(Step),
    Drop(Step),
    Replace(Step, Label),
}
