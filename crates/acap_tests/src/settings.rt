//! A test of settings files: each key missing, wrong or unknown is reported.

use acap_settings::{Settings, SettingsFault};
use std::alloc::Global;

/// The keys that are needed and those that may stand there, in the order in which they are judged but for
/// users.
const TEXT: &str = r#"listen = "127.0.0.1:6740"
host = "localhost"
workers = 4
turns = 1000000
sessions = 0
administrators = ["root"]
[users]
joe = "secret"
"#;

/// Rows, divided by semicolons and line ends: a part of the text, what stands there instead, and how the text
/// is judged then, which is its bad key, or a word for none or for no document.
const ROWS: &str = r#"||good;
listen = "127.0.0.1:6740"
||listen;
"127.0.0.1:6740"|6740|listen;
host = "localhost"
||host;
"localhost"|["localhost"]|host;
host|listen|no document;
workers = 4
||workers;
= 4|= 0|workers;
= 4|= 1|good;
= 4|= 16|good;
= 4|= 17|workers;
= 4|= -1|workers;
= 4|= 4.0|workers;
= 4|= "4"|workers;
= 4|= true|workers;
= 1000000|= 0|turns;
= 1000000|= 1000000000|good;
= 1000000|= 1000000001|turns;
turns = 1000000
||turns;
= 0|= 1000000000|good;
= 0|= 1000000001|sessions;
= 0|= 1970-01-01|sessions;
sessions = 0
||sessions;
administrators = ["root"]
||administrators;
["root"]|[]|good;
["root"]|"root"|administrators;
["root"]|["root", 1]|administrators;
["root"]|["anyone"]|administrators;
[users]
joe = "secret"
||users;
joe = "secret"
||good;
joe = "secret"|"j.o" = ""|good;
joe = "secret"|"j/o" = ""|users;
joe = "secret"|joe = 1|users;
[users]
joe =|users =|users;
[users]|start = "commands"
[users]|good;
[users]|start = 1
[users]|start;
["root"]|["ann"]
start = "commands"|start;
[users]|[groups]
staff = ["joe", "joe"]
none = []
[users]|good;
[users]|[groups]
staff = "joe"
[users]|groups;
[users]|[groups]
"-staff" = ["joe"]
[users]|groups;
[users]|[groups]
staff = ["~"]
[users]|groups;
[users]|groups = ["joe"]
[users]|groups;
[users]|color = 1
[users]|color;
[users]|shape = 1
color = 1
[users]|color;
[users]|color = 1
[groups]
staff = 1
[users]|groups;
[users]|users|no document"#;

// Whether settings are judged so.
fn is_told(read: &Result<Settings, SettingsFault>, wanted: &str) -> bool {
    match read {
        Ok(_) => wanted == "good",
        Err(SettingsFault::NotToml) => wanted == "no document",
        Err(SettingsFault::BadKey(key)) => key.as_slice() == wanted.as_bytes(),
        Err(SettingsFault::Memory) => false,
    }
}

// Whether the text is judged so with one part of it changed.
fn is_judged(alloc: Global, old: &str, new: &str, wanted: &str) -> bool {
    match TEXT.replace(alloc, old, new) {
        Ok(text) => is_told(&Settings::read(alloc, text.as_str()), wanted),
        Err(_) => false,
    }
}

// Whether those of a row are, whose parts are divided by bars.
fn is_right(alloc: Global, row: &str) -> bool {
    let Some((old, others)) = row.split_once('|') else {
        return false;
    };
    let Some((new, wanted)) = others.split_once('|') else {
        return false;
    };
    is_judged(alloc, old, new, wanted)
}

#[test]
fn judges_keys(rt: HostRuntime) {
    for row in ROWS.split(";\n") {
        assert!(rt; is_right(rt.alloc(), row), "{row}");
    }
}
