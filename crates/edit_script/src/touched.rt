use trip_model::Trip;

/// The trip that a step changed, added or took off. It has its slot, and the trip there before the step and after it, where the
/// slot was there. A show touches none.
#[derive(Clone, Copy)]
pub struct Touched {
    pub slot: Option<u16>,
    pub before: Option<Trip>,
    pub after: Option<Trip>,
}
