// What a table of gaps refuses.

// One of the two is not a job of the table.
#[derive(Clone, Copy)]
pub struct NoSuchJob;
