use crate::crew::Standing;

/// A moment of a film.
#[derive(Debug, Drop)]
pub struct Frame {
    /// The number of the moment, counted from 0.
    pub moment: u64,
    /// What was done just before.
    pub told: String,
    /// What of the map is proved to be changed by it.
    pub proved: &'static str,
    /// The row or the line of the input that asked for it.
    pub row: String,
    /// What a comment of the script says of it.
    pub note: String,
    /// What each worker does, in the order of their numbers. It is empty if that isn't shown.
    pub crew: Vec<Standing>,
    /// The table as an SVG image.
    pub drawing: String,
}
