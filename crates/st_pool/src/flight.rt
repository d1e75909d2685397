use st_books::Books;
use st_model::Call;

/// The pool's books as last read, with the call in flight if there is one: then they are those before it. Where that call makes the pool
/// they are of generation 0, with an empty record.
#[derive(Drop)]
pub struct Flight {
    pub call: Option<Call>,
    pub books: Books,
}
