// What an access finds: the frame that it hits, or no mapping that allows it.
// An enum of its own and no Option: the project asks that a fault begins at `let Access::Hit(frame) = .. else`.
#[derive(Clone, Copy, PartialEq, Eq, Debug)]
pub enum Access {
    Hit(u16),
    Miss,
}
