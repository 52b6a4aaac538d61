// Names that arrays which commands make can't have.
ghost use Rattle.std.specs.Prelude.{◌≡◌};
ghost use Rattle.one_statement.specs.Names as spec;

use c_tokens::{Token, Tokens};
use c_tree::Array;
use chill_base::Name;
use nest_systems::is_name;
use nest_tree::{Kernel, Made};

/// Whether the name is a word of the language, as a text is read.
fn is_word(text: &[u8]) -> bool
    ensures { result ≡ spec.is_word text.now }
{
    let tokens = Tokens::new(text);
    let Some(token) = tokens.peek() else {
        return true;
    };
    match token {
        Token::Name(found) => found.bytes() != text,
        _ => true,
    }
}

fn all_digits(bytes: &[u8]) -> bool
    ensures { result ≡ spec.all_digits bytes.now }
{
    bytes.iter().all(|byte| byte.is_ascii_digit())
}

/// Whether the name is one of a loop variable: `t` and digits.
fn is_loop_name(name: Name) -> bool
    ensures { result ≡ spec.is_loop_name name }
{
    match name.bytes() {
        [first, rest @ ..] => *first == b't' && !rest.is_empty() && all_digits(rest),
        [] => false,
    }
}

fn is_param(params: &[Name], name: Name) -> bool
    ensures { result ≡ spec.is_param params.now name }
{
    for param in params {
        if is_name(*param, name) {
            return true;
        }
    }
    false
}

fn is_array(arrays: &[Array], name: Name) -> bool
    ensures { result ≡ spec.is_array arrays.now name }
{
    for array in arrays {
        if is_name(array.name, name) {
            return true;
        }
    }
    false
}

fn is_made(made: &[Made], name: Name) -> bool
    ensures { result ≡ spec.is_made made.now name }
{
    for array in made {
        if is_name(array.name, name) {
            return true;
        }
    }
    false
}

/// Whether the kernel has an array or a parameter of this name.
#[tactic(auto, unfolding(crate::specs::Names::is_used))]
fn is_used(kernel: &Kernel, name: Name) -> bool
    ensures { result ≡ spec.is_used kernel.now name }
{
    is_param(kernel.head.params.as_slice(), name)
        || is_array(kernel.head.arrays.as_slice(), name)
        || is_made(kernel.made.as_slice(), name)
}

/// Whether an array of this name can be made.
#[tactic(auto, unfolding(crate::specs::Names::is_free))]
pub fn is_free(kernel: &Kernel, name: Name) -> bool
    ensures { result ≡ spec.is_free kernel.now name }
{
    !is_word(name.bytes()) && !is_loop_name(name) && !is_used(kernel, name)
}
