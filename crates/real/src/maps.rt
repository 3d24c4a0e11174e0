// Real maps of Majorana operators by value, as structs of rows, the form that docs/DECISIONS.md names:
// 2 by 2 for one mode, 4 by 4 for two.

// A row of a 2 by 2.
#[derive(Clone, Copy)]
pub struct Real2 {
    pub x0: f64,
    pub x1: f64,
}

#[derive(Clone, Copy)]
pub struct Map2 {
    pub r0: Real2,
    pub r1: Real2,
}

// A row of a 4 by 4.
#[derive(Clone, Copy)]
pub struct Real4 {
    pub x0: f64,
    pub x1: f64,
    pub x2: f64,
    pub x3: f64,
}

#[derive(Clone, Copy)]
pub struct Map4 {
    pub r0: Real4,
    pub r1: Real4,
    pub r2: Real4,
    pub r3: Real4,
}
