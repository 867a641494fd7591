//! The tests of fields, lists, lines, suites and tables of answers: what no clause says. Values of other programs and of the
//! standards, each call with an allocator where memory is ample, and streams that fail in mid-stream.
#![tactic(auto)]

#[cfg(test)]
mod ask;
#[cfg(test)]
mod base64_text_and_rows;
#[cfg(test)]
mod block_and_joined;
#[cfg(test)]
mod failing_streams;
#[cfg(test)]
mod fakes;
#[cfg(test)]
mod fields_and_pieces;
#[cfg(test)]
mod given;
#[cfg(test)]
mod hmac;
#[cfg(test)]
mod input_and_source_text;
#[cfg(test)]
mod keys;
#[cfg(test)]
mod lists_and_elements;
#[cfg(test)]
mod private_key;
#[cfg(test)]
mod read_and_write;
#[cfg(test)]
mod reader_and_writer;
#[cfg(test)]
mod std_io;
#[cfg(test)]
mod suites;
#[cfg(test)]
mod view;
#[cfg(test)]
mod wire_rows;
#[cfg(test)]
mod words_quotes_and_lines;
