//! The attributes of an event item.

ghost use Rattle.std.specs.Prelude.{◌≡◌, codes};

use bml_bytes::{NoMemory, Text};
use std::alloc::Global;

/// The names of the attributes that an event item is read from.
#[derive(Drop)]
pub struct AttributeNames {
    pub kind: Text,
    pub module_ref: Text,
    pub message: MessageNames,
    ghost kind_is: { kind ≡ codes "type" },
    ghost module_ref_is: { module_ref ≡ codes "module_ref" },
}

/// The names of those that ask something of a message.
#[derive(Drop)]
pub struct MessageNames {
    pub component: Text,
    pub group: Text,
    pub id: Text,
    pub version: Text,
    ghost component_is: { component ≡ codes "es_ref" },
    ghost group_is: { group ≡ codes "message_group_id" },
    ghost id_is: { id ≡ codes "message_id" },
    ghost version_is: { version ≡ codes "message_version" },
}

impl AttributeNames {
    pub fn new(alloc: Global) -> Result<AttributeNames, NoMemory> {
        let message = MessageNames::new(alloc)?;
        let kind = Text::of_bytes(alloc, b"type")?;
        let module_ref = Text::of_bytes(alloc, b"module_ref")?;
        Ok(AttributeNames {
            kind,
            module_ref,
            message,
        })
    }
}

impl MessageNames {
    fn new(alloc: Global) -> Result<MessageNames, NoMemory> {
        let component = Text::of_bytes(alloc, b"es_ref")?;
        let group = Text::of_bytes(alloc, b"message_group_id")?;
        let id = Text::of_bytes(alloc, b"message_id")?;
        let version = Text::of_bytes(alloc, b"message_version")?;
        Ok(MessageNames {
            component,
            group,
            id,
            version,
        })
    }
}
