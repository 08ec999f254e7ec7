// Which makers are shut out of which classes.
ghost use Rattle.market.specs.Squares.{Square};

pub mod keeping;

// A row for each maker, with a cell for each class: whether the maker is shut out of it.
#[derive(Drop)]
pub struct Shutouts {
    table: [[bool; 16]; 16],
    ghost square: { Square table },
}
