// Complex numbers with the arithmetic of num-complex.
ghost use Rattle.std.specs.Prelude.{◌≡◌};
ghost use Rattle.gate.specs.Complex.{◌+ℂ◌, ◌-ℂ◌, ◌*ℂ◌, scale_of, conj_of, norm_sqr_of, is_zero_of};

use std::ops::{Add, Mul, Sub};

#[derive(Clone, Copy)]
pub struct Complex {
    pub re: f64,
    pub im: f64,
}

impl Complex {
    pub const ZERO: Complex = Complex { re: 0.0, im: 0.0 };

    pub const ONE: Complex = Complex { re: 1.0, im: 0.0 };

    pub const MINUS: Complex = Complex { re: -1.0, im: 0.0 };

    pub const IMAG: Complex = Complex { re: 0.0, im: 1.0 };

    pub const MINUS_IMAG: Complex = Complex { re: 0.0, im: -1.0 };

    // The product with a real number, a method as num-complex has it: each part is multiplied, and nothing is added.
    pub fn scale(self, x: f64) -> Complex
        ensures { result ≡ scale_of self x }
    {
        Complex {
            re: self.re * x,
            im: self.im * x,
        }
    }

    pub fn conj(self) -> Complex
        ensures { result ≡ conj_of self }
    {
        Complex {
            re: self.re,
            im: -self.im,
        }
    }

    // The square of the absolute value.
    pub fn norm_sqr(self) -> f64
        ensures { result ≡ norm_sqr_of self }
    {
        self.re * self.re + self.im * self.im
    }

    // Whether it equals zero, as == of the original has it: zeros of either sign do. num-complex names it so too.
    #[tactic(auto, unfolding(crate::specs::Complex::is_zero_of))]
    pub fn is_zero(self) -> bool
        ensures { result ≡ is_zero_of self }
    {
        self.re == 0.0 && self.im == 0.0
    }
}

impl Add for Complex {
    type Output = Complex;

    ghost add_gives = { λ a b c. c ≡ a +ℂ b };

    fn add(self, b: Complex) -> Complex {
        Complex {
            re: self.re + b.re,
            im: self.im + b.im,
        }
    }
}

impl Sub for Complex {
    type Output = Complex;

    ghost sub_gives = { λ a b c. c ≡ a -ℂ b };

    fn sub(self, b: Complex) -> Complex {
        Complex {
            re: self.re - b.re,
            im: self.im - b.im,
        }
    }
}

impl Mul for Complex {
    type Output = Complex;

    ghost mul_gives = { λ a b c. c ≡ a *ℂ b };

    fn mul(self, b: Complex) -> Complex {
        Complex {
            re: self.re * b.re - self.im * b.im,
            im: self.re * b.im + self.im * b.re,
        }
    }
}
