//! Exact affine rows, maps and polyhedra over whole numbers of at most 128 bits.
//!
//! `specs/Affine.antt` says what a row, a map and a domain mean at a point.
#![tactic(auto)]

mod common_divisor;
mod conj;
mod copy;
mod domain;
mod exact_row;
mod fault;
mod fraction;
mod invert;
mod limit;
mod list;
mod map;
mod membership;
mod name;
mod place;
mod products;
mod row;
mod row_view;
mod scalar;
mod scaled_sum;
mod step;
mod tableau;

pub use common_divisor::{gcd, gcd_all};
pub use conj::Conj;
pub use copy::TryCopy;
pub use domain::Domain;
pub use exact_row::ExactRow;
pub use fault::{LinFault, NoInverse};
pub use limit::Limit;
pub use list::List;
pub use map::Map;
pub use name::Name;
pub use products::add_products;
pub use row::Row;
pub use row_view::RowView;
pub use scaled_sum::{Weights, wide_product, wide_sum};
pub use step::{Derivation, RatPoint, Step};
