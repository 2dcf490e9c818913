// How many things may be named.

/// How many statements a script has, and how many texts, tuples, objects and activations may be named. Their numbers are below these counts.
#[derive(Clone, Copy)]
pub struct Counts {
    /// The statements of the script.
    pub statements: u64,
    /// The texts.
    pub texts: u64,
    /// The tuples.
    pub tuples: u64,
    /// The objects, with object 0.
    pub objects: u64,
    /// The activations, with the script's own.
    pub scopes: u64,
}
