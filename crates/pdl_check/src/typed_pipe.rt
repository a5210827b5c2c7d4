// Pipes whose variables have widths.
ghost use Rattle.std.specs.Prelude.{◌≡◌, None, IsTrue};
ghost use Rattle.pdl_syntax_tree.specs.View.{pipe_view};
ghost use Rattle.pdl_rules.specs.Refusal.{first_broken, limits};
ghost use Rattle.pdl_rules.specs.Widths.{variables as spec_variables};
ghost use Rattle.pdl_rules_names.specs.Order.{name_rules};
ghost use Rattle.pdl_rules_widths.specs.Order.{width_rules};
ghost use Rattle.pdl_rules_widths.specs.Variables.{width_among};
ghost use Rattle.pdl_check.specs.Narrow.{are_narrow};

use pdl_kit::Name;
use pdl_rules_widths::Variables;
use pdl_syntax_tree::Pipe;

/// A pipe that keeps the limits and the rules on names and widths, with the width of each of its variables, 1 to `WIDEST` bits.
#[derive(Drop)]
pub struct TypedPipe {
    pipe: Pipe,
    variables: Variables,
    pub ghost told: { variables ≡ spec_variables (pipe_view pipe) },
    pub ghost narrow: { IsTrue (are_narrow variables) },
}

impl TypedPipe {
    /// The pipe with its variables.
    pub fn new(pipe: Pipe, variables: Variables) -> TypedPipe
        requires told { variables ≡ spec_variables (pipe_view pipe) }
        requires within { first_broken limits (pipe_view pipe) ≡ None }
        requires named { first_broken name_rules (pipe_view pipe) ≡ None }
        requires fitting { first_broken width_rules (pipe_view pipe) ≡ None }
        ensures { result.pipe ≡ pipe }
    {
        TypedPipe { pipe, variables }
    }

    /// Lends the pipe.
    pub fn pipe(&self) -> &Pipe
        ensures { result.now ≡ self.now.pipe }
    {
        &self.pipe
    }

    /// The width of a variable in bits, 1 to `WIDEST`: of a parameter that of its type, and else that of the expression or the memory that it is bound to; none where the text defines no variable of that name.
    pub fn width(&self, name: &Name) -> Option<u8>
        ensures { result ≡ width_among (spec_variables (pipe_view self.now.pipe)) name.now }
    {
        match self.variables.find(name) {
            Some(width) => Some(width as u8),
            None => None,
        }
    }
}
