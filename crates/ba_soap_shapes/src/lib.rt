//! Shapes of elements as tables, what is out of shape and where, and endpoint references in elements.
#![tactic(auto)]

mod elements;
mod endpoints;
mod forms;
mod shapes;

pub use elements::{own_texts, text_of};
pub use endpoints::{
    ADDRESS, EprFault, and, child_at, element, endpoint_element, endpoint_misfit, endpoint_of,
    epr_of, fault_of, name, only, text_at, text_element, tree_of_epr, unmarked, wsa_name,
};
pub use forms::{MOST_NUMBER, Plain, is_number, is_qname, local_part, number_of};
pub use shapes::{Form, Found, Misfit, Need, Row, Space, Why, earlier, mismatch, rows_misfit};
