//! Uses of names.

ghost use Rattle.std.specs.Prelude.{◌≡◌};
ghost use Rattle.asl_rules.specs.declarations.UsedNames as rules;
ghost use Rattle.asl_names.specs.private.UseView.{use_of};

use asl_syn::token::Span;

/// A use of a name, with the place of the expression where one is asked for.
#[derive(Clone, Copy)]
pub enum Use<'a> {
    /// Of storage or of a label.
    Value(Span, &'a [u8]),
    /// A call.
    Subprogram(Span, &'a [u8]),
    Type(&'a [u8]),
}

impl<'a> Use<'a> {
    /// The name that is used.
    pub(crate) fn name(self) -> &'a [u8]
        ensures { result.now ≡ rules.name_of (use_of self.entry) }
    {
        match self {
            Use::Value(_, name) => name,
            Use::Subprogram(_, name) => name,
            Use::Type(name) => name,
        }
    }
}
