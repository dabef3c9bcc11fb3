// Sheets: rules and at-rules (specs/), read as html2text 0.17.4 reads them (src/css/parser.rs).
#![tactic(auto)]

pub mod rulesets; // rulesets.rt: rules
pub mod at_rules; // at_rules.rt: at-rules
pub mod statements; // statements.rt: statements, and a sheet of them
pub mod sheet; // sheet.rt: a sheet into lent stores
pub mod answers; // answers.rt: what reading a sheet answers, in numbers
