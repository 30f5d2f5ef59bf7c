/// Why an account refuses a request: the units that it needs, and the fewer units that are left for
/// it.
#[derive(Clone, Copy, Debug, PartialEq, Eq)]
pub struct Need {
    pub need: u64,
    pub left: u64,
}
