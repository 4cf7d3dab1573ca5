//! What is written: texts that read as generated code does, with marks for what a schema says (`filler.rt` says which). They are
//! constants, since Rattle can't take in a file's text.

mod builders;
mod clients;
mod enums;
mod readers;
mod servers;

/// A module's code and its definitions. Private functions come after all else.
const PAGES: &str = "
$block code page$
$for nodes$
$insert node kind$
$end$
$for nodes$
$for fields$
$if tree$
$insert default$
$end$
$end$
$end$
$block specs page$
$for nodes$
$insert specs kind$
$end$
$block module head$
//! `$module$` of $schema$$if whole$, made by capnpc_rattle$end$.

$block definitions head$
-- $if calls$What calls of `$module$` of $schema$ lead to$else$The enums and unions of `$module$` of $schema$$end$.
";

/// All templates.
pub const TEMPLATES: [&str; 12] = [
    PAGES,
    readers::READERS,
    readers::FIELDS,
    enums::ENUMS,
    enums::CONSTANTS,
    enums::TREES,
    builders::BUILDERS,
    builders::GROUPS,
    builders::SETTERS,
    clients::CLIENTS,
    clients::KINDS,
    servers::SERVERS,
];
