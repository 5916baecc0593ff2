// The draws of a step. A row of a table is a draw modulo the count of rows; the rest is what the division leaves.
#[derive(Clone, Copy)]
pub struct Draws {
    pub k: u32,
    pub a: u32,
    pub b: u32,
    pub c: u32,
    pub d: u32,
    pub e: u32,
}

fn next(draw: u32) -> u32 {
    (u64::from(draw) * 16807 % 2147483647) as u32
}

impl Draws {
    // The six behind a draw.
    pub fn after(draw: u32) -> Draws {
        let k = next(draw);
        let a = next(k);
        let b = next(a);
        let c = next(b);
        let d = next(c);
        let e = next(d);
        Draws { k, a, b, c, d, e }
    }
}

// x modulo n; 0 with n = 0.
pub fn modulo(x: u32, n: u32) -> u32 {
    x.checked_rem(n).unwrap_or(0)
}
