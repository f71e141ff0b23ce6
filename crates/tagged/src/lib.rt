// Cipher suite records with their tags: document 02, C-14.
#![tactic(auto)]

pub mod tagged_records;
