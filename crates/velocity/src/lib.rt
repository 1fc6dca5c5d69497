// Velocities of calling handsets (Q.1902.3, 6.19): measured values, and the whole numbers that
// stand for them. Definitions, theorems and types.
#![tactic(auto)]

// Which way a vertical speed goes.
#[derive(Clone, Copy)]
pub enum Mark {
    Upward,
    Downward,
}

// What was measured: bearing in degrees, speed and vertical speed in km/h.
#[derive(Clone, Copy)]
pub enum Velocity {
    Horizontal(f64, f64),
    WithVertical(f64, f64, f64, Mark),
}

// The whole numbers that stand for them.
#[derive(Clone, Copy)]
pub enum Codes {
    Horizontal(u16, u16),
    WithVertical(u16, u16, u8, Mark),
}

// Bearing and speed together.
#[derive(Clone, Copy)]
pub struct Course {
    pub bearing: f64,
    pub speed: f64,
}

// What codes stand for: the course, and beside it a vertical speed with its mark.
#[derive(Clone, Copy)]
pub enum Known {
    Horizontal(Course),
    WithVertical(Course, f64, Mark),
}
