// Parameters by their names.
ghost use Rattle.std.specs.Prelude.{◌≡◌, IsTrue};
ghost use Rattle.csr_data.specs.Parameters.{has, names_of, number_in};

use crate::values::Parameter;
use chill_base::Name;

/// The value of a parameter that is there.
pub fn parameter_value(params: &[Parameter], name: &Name) -> u64
    requires { IsTrue (has (names_of params.now) name.now) }
    ensures { result ≡ number_in params.now name.now }
{
    for param in params {
        if param.name.bytes() == name.bytes() {
            return param.value;
        }
    }
    unreachable!()
}
