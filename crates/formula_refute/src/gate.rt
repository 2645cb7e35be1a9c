//! Where a caller can see the workers.

/// Called by each worker before it decides a case, with the worker's number and the case's. A gate
/// may hold the worker there for a while.
pub trait CaseGate {
    fn before_case(&self, worker: u32, case_no: u32);
}
