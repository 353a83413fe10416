// What is answered on a ticket: result lines, settling, reasons and the numbers for C, as definitions (specs/), with the marked cases that pin them.
#![tactic(auto)]
