/// A call of a source or a sink failed. Why is not told; what stands then is said at each call.
#[derive(Clone, Copy, Debug, PartialEq, Eq, Drop)]
pub struct Failed;
