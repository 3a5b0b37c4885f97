//! The grammar of texts of XML 1.0 in the part that this product takes. The definitions stand in `specs/`; no code
//! does here.
#![tactic(auto)]
