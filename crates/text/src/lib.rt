// What document 01 says of any text: digits, lines and hexadecimal text, as definitions (specs/), with the rows that pin them and the laws on them.
#![tactic(auto)]
