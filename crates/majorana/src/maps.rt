// The map that a block makes of the Majorana operators, with its residual: `real::Map2` for one mode,
// `real::Map4` for two.

#[derive(Clone, Copy)]
pub struct Mapped<Q> {
    pub q: Q,
    pub residual: f64,
}

// A row of a map, `real::Real2` or `real::Real4`, and its part of the residual, squared.
#[derive(Clone, Copy)]
pub struct Fitted<Q> {
    pub q: Q,
    pub d: f64,
}
