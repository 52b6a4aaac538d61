//! What the commands on sparse matrices share: names, forms with their variables replaced, and one statement put in the
//! place of another.
#![tactic(auto)]

mod alone;
mod copies;
mod images;
mod made;
mod names;
mod put;
mod replace;

pub use alone::is_alone;
pub use copies::{copy_access, copy_nest, copy_with, push_copies};
pub use images::{Images, image_form};
pub use made::{has_room, made_name};
pub use names::is_free;
pub use put::put_statement;
pub use replace::{
    image_access, image_body, image_forms, image_row, image_rows, image_term, image_terms,
};
