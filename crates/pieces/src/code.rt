// The codes of names, for a caller who has the names: a listed name is not spelled out but goes by its code.
ghost use Rattle.std.specs.Prelude.{◌≡◌};
ghost use Rattle.names.specs.Header.{header_names};
ghost use Rattle.names.specs.Names.{code_in};
ghost use Rattle.names.specs.declared.NameList.{NameList};
ghost use Rattle.connection.specs.Cycle.{direction_of};
ghost use Rattle.building_record.specs.Record.{built_kind};

use building_record::BuildingKind;
use names::table::code_of;
use names::{NameList, header};

// The code of a header's name, by the packet that it is for, small and capital letters taken as one.
pub fn of_header(kind: BuildingKind, name: &[u8]) -> Option<u16>
    ensures { result ≡ code_in (header_names (direction_of (built_kind kind))) name.now }
{
    header::code_of(kind.kind().direction(), name)
}

// The code of a method's name.
pub fn of_method(name: &[u8]) -> Option<u16>
    ensures { result ≡ code_in NameList.Methods name.now }
{
    code_of(NameList::Methods, name)
}

// The code of an attribute's name.
pub fn of_attribute(name: &[u8]) -> Option<u16>
    ensures { result ≡ code_in NameList.Attributes name.now }
{
    code_of(NameList::Attributes, name)
}
