// What the call answers. It stands apart from the call, since a function and a struct of one module
// cannot have names that differ only in case.

// How many devices are reached, the set of them, and how many ports were examined for that.
#[derive(Clone, Copy, Debug, PartialEq, Eq)]
pub struct Reach {
    pub value: u32,
    pub set: u32,
    pub examined: u32,
}
