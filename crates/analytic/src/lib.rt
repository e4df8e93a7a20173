//! Analytic surfaces: their points and first derivatives, after the Rust's surface_math/analytic.rs (module `analytic`); `surface` stands for
//! its surface types, `kind` for their kinds by number.
#![tactic(auto)]

pub mod analytic;
pub mod kind;
pub mod surface;

pub use analytic::Derivatives;
pub use kind::Kind;
pub use surface::Surface;
