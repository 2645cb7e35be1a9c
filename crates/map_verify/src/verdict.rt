//! What a verification comes to.

use az_lin::RatPoint;
use cert_text::Certificate;
use target_map::{CertifiedMap, Which};

#[derive(Debug, Drop)]
pub enum Verdict {
    /// Each case of each formula is refuted: the mapping is certified, and the certificate shows it.
    Yes(CertifiedMap, Certificate),
    /// The first case that isn't refuted, and a point that is open for it.
    No {
        which: Which,
        case_no: u32,
        point: RatPoint,
    },
}
