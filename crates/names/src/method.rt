// Method codes: which is HEAD.
ghost use Rattle.std.specs.Prelude.{◌≡◌};
ghost use Rattle.names.specs.Method.{is_head_method};

// The code of HEAD.
const HEAD: u16 = 3;

// Whether a method's code is that of HEAD.
pub fn is_head(code: u16) -> bool
    ensures { result ≡ is_head_method code }
{
    code == HEAD
}
