//! The page of module 0000.

ghost use Rattle.std.specs.Prelude.{◌≡◌, IfOk};
ghost use Rattle.file_generator.specs.Menu.{menu_entity};

use bml_bytes::NoMemory;
use std::alloc::Global;

/// What stands before the document: the head of the entity, and that of its one part.
const HEADS: &[u8] = b"Content-Type: multipart/mixed; boundary=\"b1\"\r\n\r\n\
    --b1\r\n\
    Content-Type: text/X-arib-bml; charset=\"euc-jp\"\r\n\
    Content-Location: startup.bml\r\n\r\n";

/// A page with three lines, of which one can be chosen.
const DOCUMENT: &[u8] = br#"<?xml version="1.0" encoding="EUC-JP"?>
<!DOCTYPE bml PUBLIC "+//ARIB STD-B24:1999//DTD BML Document//JA" "bml_1_0.dtd">
<bml><head><title>menu</title>
<style><![CDATA[
p { left:0px; width:200px; height:40px; color-index:7; background-color-index:1; }
p:focus { background-color-index:3; }
#m1 { top:0px; nav-index:0; nav-down:1; }
#m2 { top:50px; nav-index:1; nav-up:0; nav-down:2; }
#m3 { top:100px; nav-index:2; nav-up:1; }
]]></style>
<script><![CDATA[
var n = 0;
function down() { if (document.currentEvent.keyCode == 2) { n = n + 1; } }
function pick() { document.getElementById("out").firstChild.data = "picked " + n; }
]]></script>
<bevent><beitem id="b1" type="DataButtonPressed" subscribe="subscribe" onoccur="pick();"/></bevent>
</head><body style="left:0px;top:0px;width:960px;height:540px;background-color-index:0;">
<div style="left:100px;top:80px;width:200px;height:150px;">
<p id="m1" onkeydown="down();" onclick="pick();">News</p>
<p id="m2" onkeydown="down();" onclick="pick();">Weather</p>
<p id="m3" onkeydown="down();" onclick="pick();">Sport</p>
</div>
<p id="out" style="left:100px;top:300px;">-</p>
</body></bml>"#;

/// The entity with that document.
pub fn menu(alloc: Global) -> Result<Vec<u8>, NoMemory>
    ensures { IfOk result (λ bytes. bytes.items ≡ menu_entity) }
{
    let mut bytes = Vec::new(alloc);
    bytes.extend_from_slice(HEADS)?;
    bytes.extend_from_slice(DOCUMENT)?;
    bytes.extend_from_slice(b"\r\n--b1--\r\n")?;
    Ok(bytes)
}
