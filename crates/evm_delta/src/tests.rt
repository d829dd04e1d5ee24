use evm_rows::Solid;

mod booleans;
mod shapes;

// Whether the solid has these rows.
fn has_rows(solid: &Solid, dim: usize, numbers: &[i32]) -> bool {
    solid.dim() == dim && solid.rows().flat == numbers
}
